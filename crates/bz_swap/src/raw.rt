//! Acts on words as they are, in a recovery time.

ghost use Rattle.std.specs.Prelude.{◌≡◌, ◌≢◌};
ghost use Rattle.bz_swap_machine.specs.declared.place.Place.TheVariants.{Idle as IdlePlace};
ghost use Rattle.bz_swap.specs.Inside.Kept.{RecoversAt};
ghost use Rattle.bz_swap.specs.Inside.Raw.{IsRawAct};
ghost use Rattle.bz_swap.specs.Inside.Raw.{next_place};
ghost use Rattle.bz_swap_cells.specs.Store.{HasRoom, MayAsk};

use bz_swap_acts::{Act, Acted};
use bz_swap_cells::Cells;
use bz_swap_machine::{Done, Place};

// Makes the act at the place of worker w, which recovers.
pub(crate) fn raw_act(cells: &mut Cells, w: u8, place: Place) -> Acted
    requires room { HasRoom cells.old }
    requires asker { MayAsk cells.old w }
    requires lies { RecoversAt cells.old place }
    requires busy { place ≢ IdlePlace }
    ensures { IsRawAct cells.old w place result cells.new }
{
    match place {
        Place::LoadWord(a) => {
            let v = cells.load(a);
            Acted {
                act: Act::Load { a, v },
                done: Done::Read(v),
            }
        }
        Place::StoreWord { address, value } => {
            cells.store(address, value);
            Acted {
                act: Act::Store {
                    a: address,
                    v: value,
                },
                done: Done::Stored,
            }
        }
        Place::AskLine(line) => {
            cells.ask(w, line);
            Acted {
                act: Act::Ask { line },
                done: Done::Busy,
            }
        }
        Place::FenceLine(_) => {
            cells.settle(w);
            Acted {
                act: Act::Fence,
                done: Done::Flushed,
            }
        }
        _ => unreachable!(),
    }
}

// Where the recovering worker is after its act: it fences the line that it has asked for, and is done with anything else.
pub(crate) fn place_after(place: Place) -> Place
    ensures { result ≡ next_place place }
{
    match place {
        Place::AskLine(line) => Place::FenceLine(line),
        _ => Place::Idle,
    }
}
