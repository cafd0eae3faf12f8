#![tactic(auto)]
// The reduced form of each entry of a bundle: its shape, its rank, the table additions, and the rows that are not zero.
// The bundle comes from standard input, and the report goes to standard output; a stream that fails is told on standard error.
mod report;

ghost use Rattle.std.specs.Prelude.{IsErrOf, OnOk, OnErr};
ghost use Rattle.std.specs.Io.KnownBytes.{Keeps, Appends};
ghost use Rattle.stream.specs.Stream.{AppendsFront};
ghost use Rattle.reduce.specs.Report.{report};
ghost use Rattle.reduce.specs.Streams.{Reported, ReportBegun};
ghost use Rattle.reduce.specs.declared.Failure.TheVariants.{Reading, Writing};

use std::io;
use std::io::{Read, Write};

// a stream failed, while it was read from or written to
#[derive(Clone, Copy, Debug, PartialEq, Eq)]
enum Failure {
    Reading,
    Writing,
}

impl Failure {
    // the line that tells it
    fn line(self) -> &'static [u8] {
        match self {
            Failure::Reading => b"failed: reading\n",
            Failure::Writing => b"failed: writing\n",
        }
    }
}

// writes the report of these bytes
fn answer<W: Write>(bundle: &[u8], output: &mut W) -> io::Result<()>
    ensures whole { OnOk result (Appends (W.contents output.old) (W.contents output.new) (report bundle.now)) }
    ensures begun { OnErr result (AppendsFront (W.contents output.old) (W.contents output.new) (report bundle.now)) }
{
    // 512 rows of 16 words; a table of 16 such rows; no report is longer (proofs/Short)
    let mut words = [0u64; 8192];
    let mut room = [0u64; 256];
    let mut out = [0u8; 544768];
    let end = report::whole(bundle, &mut words, &mut room, &mut out);
    stream::write(output, &out[..end])
}

// reads a bundle, and writes its report; where reading fails, nothing
fn run<R: Read, W: Write>(input: &mut R, output: &mut W) -> Result<(), Failure>
    ensures written { OnOk result (Reported (R.remaining input.old) (W.contents output.old) (W.contents output.new)) }
    ensures not_written { IsErrOf result Writing → ReportBegun (R.remaining input.old) (W.contents output.old) (W.contents output.new) }
    ensures not_read { IsErrOf result Reading → Keeps (W.contents output.old) (W.contents output.new) }
{
    // a byte more than a bundle can have: what fills the buffer is too long
    let mut bytes = [0u8; 65536];
    let n = stream::read(input, &mut bytes).map_err(|_| Failure::Reading)?;
    answer(&bytes[..n], output).map_err(|_| Failure::Writing)
}

fn main(rt: HostRuntime) {
    if let Err(failure) = run(&mut rt.stdin(), &mut rt.stdout()) {
        // where this fails too, there is no one left to tell
        let _ = stream::write(&mut rt.stderr(), failure.line());
    }
}
