// What is found: how many samples differ, and the first of them.

// A sample that differs: its place, counted from 0, and its value in either file.
#[derive(Clone, Copy)]
pub(crate) struct Difference {
    pub(crate) at: u64,
    pub(crate) a: u16,
    pub(crate) b: u16,
}

// How many samples differ, and the first that does.
#[derive(Clone, Copy)]
pub(crate) struct Found {
    pub(crate) count: u64,
    pub(crate) first: Option<Difference>,
}

impl Found {
    pub(crate) const NOTHING: Found = Found {
        count: 0,
        first: None,
    };

    // One more. The count is held where it would wrap.
    pub(crate) fn add(&mut self, at: u64, a: u16, b: u16) {
        self.count = self.count.saturating_add(1);
        if self.first.is_none() {
            self.first = Some(Difference { at, a, b });
        }
    }
}
