// Going over the records, many at a time.
ghost use Rattle.segments.specs.Log.{IsLog, LeavesReading};
ghost use Rattle.segments.specs.Scan.{NextManyGoes};

use crate::error::Error;
use crate::folder::Folder;
use crate::log::SegmentedLog;
use crate::place::Place;
use digest::Digest;
use disk::{Blob, IoBuf};
use page::Sum;

impl<F: Folder<B> + Drop, B: Blob + Drop, H: Sum, R: Sum, D: Digest> SegmentedLog<F, B, H, R, D> {
    /// The next records from a place on, each with the place where it stands: as many as have
    /// `most` bytes together, and one at least, however long it is. None only at the end of the
    /// log. The records of several segments may come at once. The place moves behind the last of
    /// them, and at the end of the log to the place where [`next`](SegmentedLog::next) leaves it.
    ///
    /// A record that doesn't fit is read anew by the next call, so let `most` be several times as
    /// great as a record. The errors are those of [`read`](SegmentedLog::read), and `OutOfMemory`
    /// of `Layer` if memory for the list is refused. Each leaves the place where it was. If records
    /// stand before a frame that can't be read, they are answered, and the next call answers the
    /// error.
    pub fn next_many(
        &mut self,
        place: &mut Place,
        most: usize,
    ) -> Result<Vec<(Place, IoBuf)>, Error>
        requires log { IsLog H.sum_of R.sum_of self.old }
        ensures goes { let d = D.digest_of in
            NextManyGoes H.sum_of R.sum_of d most self.old self.new place.old place.new result }
        ensures ready { IsLog H.sum_of R.sum_of self.new }
        ensures leaves { LeavesReading H.sum_of R.sum_of self.old self.new }
    {
        let mut found = Vec::new(self.alloc);
        let mut room = most;
        // The place behind the records that were found.
        let mut behind = *place;
        'records: loop {
            let mut at = behind;
            match self.next(&mut at) {
                Ok(Some(next)) => {
                    let len = next.1.len();
                    if room < len {
                        if !found.is_empty() {
                            *place = behind;
                            return Ok(found);
                        }
                        found.push(next)?;
                        *place = at;
                        return Ok(found);
                    }
                    found.push(next)?;
                    behind = at;
                    room -= len;
                }
                Ok(None) => {
                    *place = at;
                    return Ok(found);
                }
                Err(error) => {
                    if found.is_empty() {
                        return Err(error);
                    }
                    *place = behind;
                    return Ok(found);
                }
            }
        }
    }
}
