//! The streams of a case.

use crate::cases::Case;
use crate::words::StreamPlan;
use ss_base::{MemoryRead, MemoryWrite, Plan};
use std::alloc::{AllocError, Global};

/// The bytes that a writer has room for beyond the report that is wanted.
const MORE_ROOM: usize = 65_536;

/// A reader of a case's input, and a writer of its report.
#[derive(Drop)]
pub struct CaseStreams {
    pub reader: MemoryRead,
    pub writer: MemoryWrite,
}

impl CaseStreams {
    /// The streams of a case before its run.
    pub fn new(alloc: Global, case: &Case<'_>, plan: Plan) -> Result<CaseStreams, AllocError> {
        let reader = MemoryRead::new(alloc, &case.input, plan)?;
        let StreamPlan { plan, failure } = case.writer();
        let room = case.report.len().saturating_add(MORE_ROOM);
        let writer = MemoryWrite::new(alloc, room, plan, failure)?;
        Ok(CaseStreams { reader, writer })
    }
}
