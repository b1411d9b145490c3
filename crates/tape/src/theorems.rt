ghost use Rattle.tape.specs.Reading.{ReadsBack};

/// Reading a command is the inverse of writing it, whatever follows on the tape.
pub fn reads_back()
    ensures { ReadsBack }
{}
