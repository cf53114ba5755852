// The bytes of a listing.
pub const PLAIN: u8 = b's';

pub const BARRIER: u8 = b'b';

pub const LOOP: u8 = b'l';

pub const BRANCH: u8 = b'i';

pub const SINGLE: u8 = b'S';

pub const MASTER: u8 = b'M';

pub const CRITICAL: u8 = b'C';

pub const DO: u8 = b'D';

pub const ORDERED: u8 = b'O';

pub const NOWAIT: u8 = b'n';

pub const OPEN: u8 = b'{';

pub const CLOSE: u8 = b'}';
