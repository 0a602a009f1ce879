// A step as the passes are told it. A deed that takes entries back, or paints them again, names them by their places in the log.
use crate::run::Run;
use definitions::Window;

// Every pixel of a window gets a feature; the entries of a run are taken back, last to first; or their blocks are painted again, first to last.
#[derive(Clone, Copy)]
pub enum Deed {
    Fill(Window, u32),
    Back(Run),
    Again(Run),
}
