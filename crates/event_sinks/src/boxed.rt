//! Any sink, in a box.

use crate::fault::SinkFault;
use crate::sink::Sink;
use record_codec::Event;

impl Sink for Box<dyn Sink> {
    ghost record_list = { λ b. (Sink-box b).record_list b.value };

    ghost is_open = { λ b. (Sink-box b).is_open b.value };

    ghost may_answer = { λ b before event answer. (Sink-box b).may_answer b.value before event answer };

    ghost page = { λ b. (Sink-box b).page b.value };

    fn put(&mut self, event: &Event) -> Result<(), SinkFault> {
        (**self).put(event)
    }

    fn close(&mut self) {
        (**self).close()
    }

    fn is_open(&self) -> bool {
        (**self).is_open()
    }

    fn taken(&self) -> u64 {
        (**self).taken()
    }
}
