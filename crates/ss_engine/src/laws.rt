//! Laws of what a text means.

pub use crate::session_laws::sessions_are_meant;
pub use crate::text_laws::{laws, longer_bounds_extend_the_report, refusals_are_due};
