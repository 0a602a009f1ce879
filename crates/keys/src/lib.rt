// Keys of blocks (specification S3): the key type's constants, child and parent, level, validity, the block of a key and the key of a pixel.
// Only crates above this one call these functions; what they require is shown there.
#![tactic(auto)]

ghost use Rattle.std.specs.Prelude.{◌≡◌, true, ◌+◌, ◌*◌, ◌/◌, ◌^◌, ◌≤◌, ◌<◌};
ghost use Rattle.keys.specs.Key.{valid_key, level_of, height_of};
ghost use Rattle.keys.specs.Block.{row_of, column_of, side_of, key_around};
ghost use Rattle.keys.specs.KeySquare.{square_read};

pub mod block;
pub mod power;
pub mod quadrant;
pub mod span;
pub mod zeros;

// A block's number: m digits in base 5.
#[derive(Clone, Copy, PartialEq, Eq, PartialOrd, Ord, Debug)]
pub struct Key {
    pub number: u32,
}

// The square of a block: its first row and column, and its side.
#[derive(Clone, Copy, PartialEq, Eq, Debug)]
pub struct Square {
    pub row: u32,
    pub column: u32,
    pub side: u32,
}

impl Key {
    pub const ROOT: u32 = 0;

    pub const DEEPEST_LEVEL: u32 = 10;

    pub const SLOT_LIMIT: u32 = 32;

    // A child of a block: digit 1 NW, 2 NE, 3 SW, 4 SE, each worth as many keys as the child has. Whoever goes from level to level has that number, the
    // step, at hand; so no power is worked out here.
    pub fn child(parent: u32, step: u32, digit: u32) -> u32
        requires { (parent + 4 * step < 2 ^ 32) × (digit ≤ 4) }
        ensures { result ≡ parent + digit * step }
    {
        parent + digit * step
    }

    // The block around a key that has as many keys as step says: the digits below become zeros.
    pub fn enclosing(key: u32, step: u32) -> u32
        requires { 1 ≤ step }
        ensures { (result ≡ key / step * step) × (result ≤ key) }
    {
        key / step * step
    }

    // The parent of the block that has as many keys as step says: five times as many.
    pub fn parent(key: u32, step: u32) -> u32
        requires { (1 ≤ step) × (step ≤ 5 ^ 9) }
        ensures { (result ≡ key / (step * 5) * (step * 5)) × (result ≤ key) }
    {
        Key::enclosing(key, step * 5)
    }

    // How many digits stand before the first zero, read from the left as on paper (specification S3.10). The key 24 of Figure 2 of Nardelli and Proietti (1994) is
    // the number 14, at m = 2:
    //     14 / 5 is 2 and 4 is left:  the first digit is 2, so the level is at least 1;
    //      4 / 1 is 4 and 0 is left:  the second digit is 4, so the level is at least 2;
    //      no digit is left:          the level is 2. (Of 20, the number 10, the second digit is 0, and the level is 1.)
    pub fn level(self, m: u32) -> u32
        requires { m ≤ 10 }
        ensures { result ≡ level_of m self.number }
    {
        let mut rest = self.number;
        let mut step = power::power_of_five(m);
        for level in 0..m {
            step = step / 5;
            let digit = rest / step;
            if digit == 0 {
                return level;
            }
            rest = rest % step;
        }
        m
    }

    // The number of levels below the block: as many as zeros stand at the end of its key.
    pub fn height(self, m: u32) -> u32
        requires { (m ≤ 10) × (valid_key m self.number ≡ true) }
        ensures { result ≡ height_of m self.number }
    {
        zeros::at_end(m, self.number).count
    }

    // Some digits from 1 to 4 and then zeros. The root's digits, zeros alone, need not be read.
    pub fn is_valid(self, m: u32) -> bool
        requires { m ≤ 10 }
        ensures { result ≡ valid_key m self.number }
    {
        if self.number == 0 {
            return true;
        }
        if power::power_of_five(m) <= self.number {
            return false;
        }
        zeros::only_at_end(m, self.number)
    }

    // The square that the number stands for, if it is a key, in one reading of its digits. They are read from the right: to divide by five is a
    // multiplication, to divide by the step of a level is not. The zeros at the end move nothing, so the reading begins past them; a zero before them is none
    // of a key's.
    pub fn read(self, m: u32) -> Option<Square>
        requires { m ≤ 10 }
        ensures { result ≡ square_read m self.number }
    {
        let number = self.number;
        if power::power_of_five(m) <= number {
            return None;
        }
        let end = zeros::at_end(m, number);
        let mut rest = number / end.power;
        let mut row = 0;
        let mut column = 0;
        for height in end.count..m {
            let last = rest % 5;
            if last == 0 {
                return None;
            }
            let side = power::power_of_two(height);
            row += quadrant::southward(last, side);
            column += quadrant::eastward(last, side);
            rest = rest / 5;
        }
        let side = power::power_of_two(end.count);
        Some(Square { row, column, side })
    }

    // The square that a key stands for.
    pub fn block(self, m: u32) -> Square
        requires { (m ≤ 10) × (valid_key m self.number ≡ true) }
        ensures { (result.row ≡ row_of m self.number) × (result.column ≡ column_of m self.number) × (result.side ≡ side_of m self.number) }
    {
        match self.read(m) {
            Some(square) => square,
            None => unreachable!(),
        }
    }

    // The block of a level around a pixel: a digit for each bit of its row and column, from the highest on, and zeros below the level. The bits tell the
    // digit without a question, and no level below is looked at.
    pub fn around(m: u32, level: u32, row: u32, column: u32) -> Key
        requires { (m ≤ 10) × (level ≤ m) × (row < 2 ^ m) × (column < 2 ^ m) }
        ensures { result.number ≡ key_around m level row column }
    {
        let last = m - level;
        let mut number = 0;
        for height in (last..m).rev() {
            let south = (row >> height) % 2;
            let east = (column >> height) % 2;
            number = number * 5 + (1 + east + south * 2);
        }
        let step = power::power_of_five(last);
        Key {
            number: number * step,
        }
    }
}
