// Writing a whole text.
ghost use Rattle.std.specs.Prelude.{OnOk, OnErr};
ghost use Rattle.std.specs.Io.KnownBytes.{Appends};
ghost use Rattle.io_edge.specs.Faults.{HasCause};
ghost use Rattle.io_edge.specs.Writing.{AppendsPrefix};

use crate::fault::SinkFault;
use crate::sink::Sink;

/// Writes all the bytes, in as many pieces as the sink asks for. A sink that takes none of what is
/// left is a fault, so each turn gets rid of a byte or is the last. At a fault a first part of the
/// bytes was written, and not all.
#[tactic(auto, using(crate::proofs::Pieces::appends_more))]
pub fn write_all<K: Sink>(sink: &mut K, bytes: &[u8]) -> Result<(), SinkFault>
    ensures ok { OnOk result (Appends (K.contents sink.old) (K.contents sink.new) bytes.now) }
    ensures prefix { OnErr result
        (AppendsPrefix (K.contents sink.old) (K.contents sink.new) bytes.now) }
    ensures cause { HasCause (K.faults sink.old) (K.faults sink.new) result }
{
    let mut done = 0;
    'pieces: while done < bytes.len() {
        let taken = sink.write(&bytes[done..])?;
        if taken == 0 {
            return Err(SinkFault);
        }
        done += taken;
    }
    Ok(())
}
