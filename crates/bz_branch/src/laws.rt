//! What is known of an inner node that was read word by word. Each function does nothing: its contract is the law.

ghost use Rattle.bz_branch.specs.Nodes.{ReadNodesWere, ParentsOfNodesWere};

use bz_content::laws as content;
use bz_halves::laws as halves;
use bz_renew::laws as renew;
use bz_slotted::laws as slotted;
use bz_task::laws;
use bz_tree::laws as shape;

/// The words of an inner node that were read one by one are those of one moment, where its status is found again.
pub fn read_nodes_were()
    ensures { ReadNodesWere }
{}

/// So are those of its parent, and the node's place may be parted there.
pub fn parents_of_nodes_were()
    ensures { ParentsOfNodesWere }
{
    content::well_formed_images_have_no_fault();
    shape::trees_have_forms();
    slotted::inner_rules_are_facts();
    slotted::whole_inners_are_readable();
    laws::nodes_stay();
    laws::headers_say_the_level();
    laws::ranges_stay();
    renew::guarded_links_stand();
    halves::read_children_may_be_parted();
}
