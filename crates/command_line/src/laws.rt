//! Laws of command lines: functions that do nothing, whose contracts are the laws.
ghost use Rattle.command_line.specs.Laws.{NothingWrittenOver};

/// A command line reads no file under a name under which it writes one.
pub fn nothing_written_over()
    ensures { NothingWrittenOver }
{}
