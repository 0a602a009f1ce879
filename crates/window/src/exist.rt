// Exist: does a feature occur in a window?
ghost use Rattle.std.specs.Prelude.{◌≡◌, true, ◌<◌};
ghost use Rattle.keys.specs.Key.{slot_limit};
ghost use Rattle.definitions.specs.Window.{is_window, exist_in};
ghost use Rattle.list.specs.Taken.{picture_listed};

use crate::passing;
use definitions::Window;
use keys::power;
use list::accepted_list::Accepted;
use walk::asking;

// Some pixel of the window has the feature: the walk is left at the first block that shows it. A block of one feature, or whose bits lack the one asked
// for, is settled by its record, however the window cuts it; only a cut node with the feature and others is entered. What is passed
// is passed by its standing, whose records tell where the next search begins, unless it has few.
pub fn exist_in(list: &Accepted<'_>, window: Window, feature: u32) -> bool
    requires { (is_window list.now.m window ≡ true) × (feature < slot_limit) }
    ensures { result ≡ exist_in (picture_listed list.now) window feature }
{
    let bit = power::power_of_two(feature);
    let mut spot = walk::start(list.m);
    let mut from = 0;
    'walk: loop {
        loop {
            if walk::apart(spot, window) {
                break;
            }
            let place = list.place_from(from, spot.key);
            let found = list.bits[place];
            if found & bit == 0 {
                from = place;
                if passing::is_short(found, spot.step) {
                    break;
                }
                let told = asking::ask(list, place, spot);
                spot = told.whole;
                from = told.last;
                break;
            }
            if found == bit {
                break 'walk true;
            }
            if walk::within(spot, window) {
                break 'walk true;
            }
            from = place;
            spot = walk::first(spot);
        }
        let Some(next) = walk::after(list.m, spot) else {
            break 'walk false;
        };
        spot = next;
    }
}
