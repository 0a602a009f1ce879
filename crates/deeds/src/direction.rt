// Which way entries of the log go: they are taken back, or their blocks are painted again.
#[derive(Clone, Copy)]
pub enum Direction {
    Back,
    Again,
}
