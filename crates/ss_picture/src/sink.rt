ghost use Rattle.std.specs.Prelude.{◌≡◌, ◌<◌, ◌≤◌, length, take, [], IsOk, IfOk, OnOk, OnErr, IsErrOf, option_map};
ghost use Rattle.std.specs.Io.KnownBytes.{Appends, Keeps};
ghost use Rattle.ss_picture.specs.Sending.{HasSent, HasSentFirst, HasStalled, stall_limit, counted_more};
ghost use Rattle.ss_base.specs.Failures.{HasRisen, HasRisenBy};

use ss_base::FaultyWrite;
use std::marker::Model;
use thiserror::Error;

/// How many writes in a row may take no byte before a sink gives up.
pub const STALL_LIMIT: u32 = 1000;

/// Why a sink could not send all that it was given.
#[derive(Clone, Copy, Debug, PartialEq, Eq, Error)]
pub enum SinkError {
    /// The writer answered an error, of any kind.
    #[error("the writer failed")]
    Failed,
    /// The writer took no byte in `STALL_LIMIT` writes in a row.
    #[error("the writer takes nothing more")]
    Stalled,
}

/// Sends printed bytes to a writer, and counts them. It never flushes.
///
/// A contract sees a sink as its writer, as it is now, and the number of bytes sent.
#[derive(Debug, Drop)]
pub struct Sink<W> {
    writer: W,
    sent: u128,
}

impl<W> Model for Sink<W> {
    ghost use Rattle.std.specs.Prelude.{◌<◌, ◌^◌};
    ghost use Rattle.ss_picture.specs.Sending.{SinkState, sink_code};

    ghost Value = { SinkState W };

    ghost coded = { sink_code W.code };

    ghost view = { λ s. record { writer = s.writer; sent = s.sent } };

    ghost invariant = { λ s. s.sent < 2 ^ 128 };
}

impl<W: FaultyWrite> Sink<W> {
    /// A sink that has sent nothing to this writer.
    pub fn new(writer: W) -> Sink<W>
        ensures writer { result.writer ≡ writer }
        ensures sent { result.sent ≡ 0 }
    {
        Sink { writer, sent: 0 }
    }

    /// Sends these bytes, in order, in as many writes as it takes; for no byte there is no write.
    ///
    /// After an error the first of the bytes were sent, but not all. `Failed` comes just where the
    /// writer answered an error, which is not asked again; `Stalled` where it took no byte in
    /// `STALL_LIMIT` writes in a row.
    pub fn write(&mut self, bytes: &[u8]) -> Result<(), SinkError>
        ensures ok { OnOk result (HasSent W.contents self.old self.new bytes.now) }
        ensures err { OnErr result (HasSentFirst W.contents self.old self.new bytes.now) }
        ensures failed { IsErrOf result SinkError.Failed
            → HasRisen (W.faults self.old.writer) (W.faults self.new.writer) }
        ensures stalled { IsErrOf result SinkError.Stalled
            → HasRisenBy stall_limit (W.faults self.old.writer) (W.faults self.new.writer) }
        ensures unfailed { OnOk result (W.errors self.new.writer ≡ W.errors self.old.writer) }
        ensures once { IsErrOf result SinkError.Failed
            → W.errors self.new.writer ≡ counted_more 1 (W.errors self.old.writer) }
        ensures no_error { IsErrOf result SinkError.Stalled → W.errors self.new.writer ≡ W.errors self.old.writer }
        ensures in_a_row { IsErrOf result SinkError.Stalled → HasStalled W.contents W.idle self.old self.new bytes.now }
        ensures never_falls { HasRisenBy 0 (W.faults self.old.writer) (W.faults self.new.writer) }
        ensures no_byte { bytes.now ≡ [] → (IsOk result) × (self.new ≡ self.old) }
    {
        let mut at = 0;
        while at < bytes.len() {
            let count = send_some(&mut self.writer, &bytes[at..])?;
            self.sent = self.sent.saturating_add(count as u128);
            at += count;
        }
        Ok(())
    }

    /// How many bytes were sent, up to 2^128 - 1.
    pub fn sent(&self) -> u128
        ensures { result ≡ self.now.sent }
    {
        self.sent
    }

    /// The writer, after all that was sent to it.
    pub fn into_inner(self) -> W
        ensures { result ≡ self.writer }
    {
        let Sink { writer, sent: _ } = self;
        writer
    }
}

// Writes until the writer takes a byte, and answers how many it took.
fn send_some<W: FaultyWrite>(writer: &mut W, bytes: &[u8]) -> Result<usize, SinkError>
    requires { 0 < length bytes.now }
    ensures count { IfOk result (λ count. (0 < count) × (count ≤ length bytes.now)) }
    ensures ok { IfOk result (λ count. Appends (W.contents writer.old) (W.contents writer.new) (take count bytes.now)) }
    ensures err { OnErr result (Keeps (W.contents writer.old) (W.contents writer.new)) }
    ensures failed { IsErrOf result SinkError.Failed → HasRisen (W.faults writer.old) (W.faults writer.new) }
    ensures stalled { IsErrOf result SinkError.Stalled
        → HasRisenBy stall_limit (W.faults writer.old) (W.faults writer.new) }
    ensures unfailed { OnOk result (W.errors writer.new ≡ W.errors writer.old) }
    ensures once { IsErrOf result SinkError.Failed → W.errors writer.new ≡ counted_more 1 (W.errors writer.old) }
    ensures no_error { IsErrOf result SinkError.Stalled → W.errors writer.new ≡ W.errors writer.old }
    ensures taken { OnOk result (W.idle writer.new ≡ option_map (λ _. 0) (W.idle writer.old)) }
    ensures in_a_row { IsErrOf result SinkError.Stalled
        → W.idle writer.new ≡ counted_more stall_limit (W.idle writer.old) }
    ensures never_falls { HasRisenBy 0 (W.faults writer.old) (W.faults writer.new) }
{
    for attempt in 0..STALL_LIMIT {
        match writer.write_some(bytes) {
            Ok(0) => {}
            Ok(count) => return Ok(count),
            Err(_) => return Err(SinkError::Failed),
        }
    }
    Err(SinkError::Stalled)
}
