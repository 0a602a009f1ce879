// Report: which features occur in a window?
ghost use Rattle.std.specs.Prelude.{◌≡◌, true};
ghost use Rattle.definitions.specs.Window.{is_window, report_in};
ghost use Rattle.list.specs.Taken.{picture_listed};
ghost use Rattle.walk.specs.Walk.{Small};
ghost use Rattle.window.specs.Settled.{settles};

use crate::passing;
use definitions::Window;
use list::accepted_list::Accepted;
use list::check;
use walk::{Spot, asking};

// A block's bits settle it: none is new, or it has one feature, or all of it lies within the window.
#[tactic(auto, unfolding(crate::specs::Settled::settles))]
fn is_settled(union: u32, found: u32, spot: Spot, window: Window) -> bool
    requires { Small spot window }
    ensures { result ≡ settles union found spot window }
{
    union | found == union || check::has_one_slot(found) || walk::within(spot, window)
}

// The bitstring of all features in the window. A block's bits are those of the last record at or before its key, its own or the leaf's around it. Where
// they settle it, the block is passed, unless it has few records by its standing, which tells where the next search begins. Only a cut node that may
// add a feature is entered.
pub fn report_in(list: &Accepted<'_>, window: Window) -> u32
    requires { is_window list.now.m window ≡ true }
    ensures { result ≡ report_in (picture_listed list.now) window }
{
    let mut union = 0;
    let mut spot = walk::start(list.m);
    let mut from = 0;
    loop {
        loop {
            if walk::apart(spot, window) {
                break;
            }
            let place = list.place_from(from, spot.key);
            let found = list.bits[place];
            if is_settled(union, found, spot, window) {
                union = union | found;
                from = place;
                if passing::is_short(found, spot.step) {
                    break;
                }
                let told = asking::ask(list, place, spot);
                spot = told.whole;
                from = told.last;
                break;
            }
            from = place;
            spot = walk::first(spot);
        }
        let Some(next) = walk::after(list.m, spot) else {
            return union;
        };
        spot = next;
    }
}
