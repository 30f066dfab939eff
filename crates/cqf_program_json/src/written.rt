//! The object, written line by line.
ghost use Rattle.cqf_output.specs.Edge.{IsWritten, writing};
ghost use Rattle.cqf_program_json.specs.Output.{text_of_json};

use crate::bridges::put_object;
use crate::outputs::JsonOutput;
use crate::wired::Wired;
use cqf_output::{CheckedSink, Sink, Writer};

impl JsonOutput {
    /// Writes the output: the object. It allocates no memory.
    pub fn write<W: Sink>(self, written: &mut CheckedSink<W>)
        ensures { IsWritten (writing W.contents written.old written.new) (text_of_json self) }
    {
        let JsonOutput {
            domain,
            rows,
            indices,
            addresses,
            links,
            buffer,
        } = self;
        let mut writer = Writer::new(written, buffer);
        let wired = Wired {
            domain: &domain,
            addresses: addresses.as_slice(),
            links: links.as_slice(),
        };
        put_object(&mut writer, wired, rows.as_slice(), indices.as_slice());
        let _written = writer.close();
    }
}
