//! Laws of the map of the memory. Each function does nothing: its contract is the law.

ghost use Rattle.bz_layout.specs.Addresses.{AddressesFit, SlotsApart, AddressesArePlaced, DescriptorsStandApart};
ghost use Rattle.bz_layout.specs.Fresh.{FreshWordsSay};

/// Every word of a descriptor and of a slot lies in the memory, whose addresses fit 32 bits.
pub fn addresses_fit()
    ensures { AddressesFit }
{}

/// Two slots have no word in common.
pub fn slots_apart()
    ensures { SlotsApart }
{}

/// Every address is a word of the superblock, of one descriptor or of one slot.
pub fn addresses_are_placed()
    ensures { AddressesArePlaced }
{}

/// No word of a slot is a word of a descriptor.
pub fn descriptors_stand_apart()
    ensures { DescriptorsStandApart }
{}

/// Fresh memory word by word.
pub fn fresh_words_say()
    ensures { FreshWordsSay }
{}
