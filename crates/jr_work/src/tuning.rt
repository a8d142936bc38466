//! The numbers by which threads share a scan, each with its reason. They decide how soon an image is there, and no
//! sample of it.

/// Minimum number of bits of a speculative read, if the interval has them: it takes some until its MCUs are those of
/// the image.
pub const MIN_BITS_OF_READ: u64 = 32_768;

/// Minimum number of threads for speculative reads: two are as fast if one reads and one transforms or paints.
pub const MIN_READERS: u32 = 3;

/// Minimum number of speculative reads for which an interval must have bits, some 128 KB, to be worth their memory.
pub const MIN_READS: u64 = 32;

/// Minimum number of speculative reads for which a scan that is only checked must have bits, some 256 KB, for threads
/// to be worth their start.
pub const MIN_READS_OF_CHECK: u64 = 64;

/// Number of speculative reads of a check, some 128 KB, for which a further thread is worth its start.
pub const READS_OF_CHECKER: u64 = 32;

/// Number of speculative reads that wait for the reader of a check, in addition to one for each thread.
pub const WAITING_READS_OF_CHECK: u32 = 4;

/// Number of speculative reads for each worker that decodes rows of MCUs: one that it makes, and two from which a row
/// is read.
pub const READS_OF_ROW_WORKER: u32 = 3;

/// Number of speculative reads for each worker that decodes strips: one that it makes, and one from which strips are
/// read.
pub const READS_OF_STRIP_WORKER: u32 = 2;

/// Number of the reader's steps whose MCUs fit into a buffer: a speculative read has about the bits of one.
pub const STEPS_OF_BUFFER: u32 = 2;

/// Minimum number of MCUs of a buffer, if a row of MCUs has fewer bits than a speculative read.
pub const MIN_MCUS_OF_BUFFER: u32 = 512;

/// Part of a row's MCUs, one in this number, that a buffer has space for in addition: a speculative read has about the
/// bits of a row, and more MCUs than one if these are short.
pub const SPARE_PART_OF_BUFFER: u32 = 4;

/// Part of the last step's bits, one in this number, by which the next step may be longer and still use all speculative
/// reads of it, and by which the last read of an interval may be longer, so that no short one follows it.
pub const SPARE_PART_OF_STEP: u64 = 2;

/// Number of data units, some 20 KB of a photo, after which a check asks for speculative reads again.
pub const UNITS_OF_CHECK_STEP: u32 = 1536;

/// Number of row buffers for each worker, if there are as many rows: one that it works at, and one that waits to be
/// painted or written.
pub const ROW_BUFFERS_OF_WORKER: u32 = 2;

/// Maximum number of tasks that a thread performs before it allocates each of its row buffers: speculative reads begin
/// early, and the reader skips rows by them.
pub const TASKS_BEFORE_ROW_BUFFER: u32 = 2;

/// Size in bytes of the memory that workers may use for rows, however few data a scan has: that of 16 workers for an
/// image of 4:2:0 some 7,900 pixels wide.
pub const FREE_BYTES: u64 = 32 << 20;

/// Size in bytes of the memory that workers may use for rows in addition, for each byte of data: a header may claim more
/// pixels than the data can code.
pub const BYTES_PER_DATA_BYTE: u64 = 16;

/// Minimum number of strips of a long interval, up to rounding.
pub const MIN_STRIPS: u32 = 64;

/// Minimum number of MCUs of a strip: reading fewer takes no longer than handing the reader on.
pub const MIN_MCUS_OF_STRIP: u32 = 256;

/// Maximum number of data units of a strip that has more than the minimum of MCUs: their blocks fit into a processor's
/// own cache.
pub const MAX_UNITS_OF_STRIP: u32 = 3072;

/// Maximum number of intervals whose sizes are looked at: a header may claim millions.
pub const MAX_COUNTED: u32 = 1024;

/// A bound of loops over tasks that no run reaches: each task has rows, strips or bits that no other has.
pub const MAX_TASKS: u64 = u64::MAX;
