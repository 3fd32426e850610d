// Where texts are cut in two.
ghost use Rattle.std.specs.Prelude.{◌≡◌, ◌≤◌, true, take, drop, length};
ghost use Rattle.std.specs.List.{list_all};
ghost use Rattle.stk_line_reading.specs.Cuts.{is_other, begins_or_ends, IsCut};

/// How many bytes stand in front of the first one that is `stop`, or of the end.
fn front_length(text: &[u8], stop: u8) -> usize
    ensures within { result ≤ length text.now }
    ensures others { list_all (is_other stop) (take result text.now) ≡ true }
    ensures stops { begins_or_ends stop (drop result text.now) ≡ true }
{
    for (i, byte) in text.iter().enumerate() {
        if *byte == stop {
            return i;
        }
    }
    text.len()
}

/// The bytes in front of the first one that is `stop`, or of the end, and the others.
pub fn cut_at(text: &[u8], stop: u8) -> (&[u8], &[u8])
    ensures { IsCut stop text.now result.0.now result.1.now }
{
    text.split_at(front_length(text, stop))
}
