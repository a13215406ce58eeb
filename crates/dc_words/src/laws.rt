//! Laws of readings. The functions have no code: what each ensures is the law.
ghost use Rattle.std.specs.Prelude.{map};
ghost use Rattle.std.specs.String.{string_bytes};
ghost use Rattle.dc_words.specs.Reading.{HaveOneReading, HaveSomeReading};

/// Words ask for one thing at most.
pub fn one_reading(words: &Vec<String>)
    ensures { HaveOneReading (map string_bytes words.now.items) }
{
    let _ = words;
}

/// Words ask for something exactly where a command takes them.
pub fn some_reading(words: &Vec<String>)
    ensures { HaveSomeReading (map string_bytes words.now.items) }
{
    let _ = words;
}
