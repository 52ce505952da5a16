//! The parts of a pattern.
ghost use Rattle.std.specs.Prelude.{◌≡◌, ◌+◌, length};
ghost use Rattle.std.specs.List.{list_any};
ghost use Rattle.editor_config.specs.Patterns.{IsAtEach, Test, is_in, many_then, one_then, part_then, takes_character};

/// The characters from one to another.
#[derive(Clone, Copy, Debug, Drop)]
pub struct Range {
    pub first: char,
    pub last: char,
}

/// A character of some, or any number of them.
#[derive(Debug, Drop)]
pub struct PatternPart {
    /// Whether it is any number of characters, and not one.
    pub repeats: bool,
    /// Whether they are those outside the ranges, and not those in them.
    pub others: bool,
    pub ranges: Vec<Range>,
}

fn is_among(ranges: &[Range], c: char) -> bool
    ensures { result ≡ list_any (is_in c) ranges.now }
{
    for range in ranges {
        if range.first <= c && c <= range.last {
            return true;
        }
    }
    false
}

impl PatternPart {
    fn takes(&self, c: char) -> bool
        ensures { result ≡ takes_character self.now c }
    {
        let is_among = is_among(&self.ranges, c);
        if self.others { !is_among } else { is_among }
    }

    /// From what fits from each place on, to what does after one character that the part takes.
    fn put_one_before(&self, path: &[char], fits: &mut [bool])
        requires { length fits.old ≡ length path.now + 1 }
        ensures { (rest : Test) → IsAtEach rest path.now fits.old
            → IsAtEach (one_then (takes_character self.now) rest) path.now fits.new }
    {
        for (place, c) in path.iter().enumerate() {
            let takes = self.takes(*c);
            fits[place] = takes && fits[place + 1];
        }
        fits[path.len()] = false;
    }

    /// The same after any number of characters that the part takes.
    fn put_many_before(&self, path: &[char], fits: &mut [bool])
        requires { length fits.old ≡ length path.now + 1 }
        ensures { (rest : Test) → IsAtEach rest path.now fits.old
            → IsAtEach (many_then (takes_character self.now) rest) path.now fits.new }
    {
        for place in (0..path.len()).rev() {
            let takes = self.takes(path[place]);
            fits[place] = fits[place] || (takes && fits[place + 1]);
        }
    }

    /// The same after what the part fits.
    pub(crate) fn put_before(&self, path: &[char], fits: &mut [bool])
        requires { length fits.old ≡ length path.now + 1 }
        ensures { (rest : Test) → IsAtEach rest path.now fits.old → IsAtEach (part_then self.now rest) path.now fits.new }
    {
        if self.repeats {
            self.put_many_before(path, fits);
        } else {
            self.put_one_before(path, fits);
        }
    }
}
