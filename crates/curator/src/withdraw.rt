// What withdrawing a document id writes.
ghost use Rattle.std.specs.Prelude.{◌+◌, ◌≤◌, length};
ghost use Rattle.curator.specs.Lent.{MarksWritten};

// Writes 0 as the mark of every vector that has a document id, and tells whether one has. The marks of `count` vectors start at `at`.
pub fn withdraw_marks(numbers: &mut [u32], at: usize, count: usize, doc_id: u32) -> bool
    requires { (count ≤ at) × (at + count ≤ length numbers.old) }
    ensures { MarksWritten doc_id at count numbers.old result numbers.new }
{
    let mut held = false;
    for i in 0..count {
        let mark_at = at + i;
        let document = numbers[i];
        if document == doc_id {
            numbers[mark_at] = 0;
            held = true;
        }
    }
    held
}
