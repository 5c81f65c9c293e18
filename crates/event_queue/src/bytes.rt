//! How many bytes the waiting records take.

ghost use Rattle.std.specs.Prelude.{◌≡◌, length};
ghost use Rattle.record_codec.specs.Records.{spelling};

use crate::queue::Queue;
use record_codec::record_len;

impl Queue {
    /// How many bytes all waiting records take: what `ioctl` with `FIONREAD` gives of an inotify file descriptor
    /// (inotify(7)). It looks at each record.
    pub fn bytes(&self) -> usize
        ensures { result ≡ length (spelling self.now.waiting) }
    {
        let _limit = self.limit();
        let mut len = 0;
        for index in 0..self.len() {
            let Some(event) = self.peek(index) else {
                unreachable!()
            };
            len += record_len(event);
        }
        len
    }
}
