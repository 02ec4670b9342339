//! The data of a run.
ghost use Rattle.std.specs.Prelude.{◌↔◌, IsTrue};
ghost use Rattle.std.specs.Io.{ReadsAtMost};
ghost use Rattle.std.specs.Io.KnownBytes.{ReadConsumes};
ghost use Rattle.simscript_order.specs.Data.{data_left};

use std::io;
use std::io::Read;

/// The data of a run: those of a reader, or none. So there is one machine for both, and what its loop calls is called from one place.
#[derive(Debug, Drop)]
pub enum Data<R> {
    None,
    Given(R),
}

impl<R: Read> Read for Data<R> {
    ghost remaining = { data_left R.remaining };

    fn read(&mut self, buf: &mut [u8]) -> io::Result<usize>
        ensures bound { ReadsAtMost result buf.new }
        ensures bytes { ReadConsumes (data_left R.remaining self.old) (data_left R.remaining self.new) result buf.new }
    {
        match self {
            Data::None => Ok(0),
            Data::Given(reader) => reader.read(buf),
        }
    }
}
