//! What bytes are read from and written to: devices that count their failures, so that a caller can promise to tell of a failure
//! exactly where a device failed. `read_all` and `write_all` go through to the end; memory and the streams of std are devices.
#![tactic(auto)]

mod device;
mod memory;
mod reading;
mod system;
mod writing;

pub use device::{ByteSink, ByteSource, Failed};
pub use memory::{MemorySink, MemorySource};
pub use reading::{ReadError, read_all};
pub use system::{Reading, Writing};
pub use writing::write_all;
