// What is printed is read back.
ghost use Rattle.rl_printed.specs.Reading.{ReadBack, EachReadBack, MachinesReadBack, FirstReadBack};

/// In a printed file the section of each machine with a `write data` is read back, by the machine's name, as the
/// tables that were printed: where no line of a host text or of the texts beside the sections begins a section, and
/// tables of one name are the same, as where no two machines have one name. Where no machine is named, the section
/// that is printed first is read.
pub fn sections_are_read_back()
    ensures named { ReadBack }
    ensures each { EachReadBack }
    ensures machines { MachinesReadBack }
    ensures first { FirstReadBack }
{}
