// Where a digit goes, in a square whose quadrants have the given side. A digit stays a number and is no enum: keys are computed with it.
ghost use Rattle.std.specs.Prelude.{◌≡◌, cond};
ghost use Rattle.keys.specs.Block.{is_south, is_east};

// What a digit adds to the row.
pub fn southward(digit: u32, side: u32) -> u32
    ensures { result ≡ cond (is_south digit) side 0 }
{
    if 3 <= digit { side } else { 0 }
}

// What a digit adds to the column.
pub fn eastward(digit: u32, side: u32) -> u32
    ensures { result ≡ cond (is_east digit) side 0 }
{
    if matches!(digit, 2 | 4) { side } else { 0 }
}
