//! Laws of views and of pairs in order. Each function does nothing: its contract is the law.

ghost use Rattle.bz_page.specs.Laws.{ViewsSayWhatImagesSay, OrderedPairsAreFound};

/// The leaf that a view shows is the key's, and the view says of each key what the image of its moment says there, and has
/// as many live words.
pub fn views_say_what_images_say()
    ensures { ViewsSayWhatImagesSay }
{}

/// In pairs with rising keys each key is found as among the same pairs in another order.
pub fn ordered_pairs_are_found()
    ensures { OrderedPairsAreFound }
{}
