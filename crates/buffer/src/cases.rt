// Worked cases of buffers, which the check asks a proof of.
ghost use Rattle.buffer.specs.Cases.{BufferCases};

pub fn buffer_cases()
    ensures { BufferCases }
{}
