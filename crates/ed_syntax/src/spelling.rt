//! That scripts are read as they are spelled.
ghost use Rattle.ed_syntax.specs.spelling.Spellings.{SpellsWhatIsRead, ReadsWhatIsSpelled};
ghost use Rattle.ed_syntax.specs.reading.Reading.{script_of};

/// What `read_script` reads is spelled so, and what is spelled so is read, and only as that script.
pub fn scripts_are_read_as_spelled()
    ensures spelled { SpellsWhatIsRead script_of }
    ensures read { ReadsWhatIsSpelled script_of }
{}
