// Making any list of calls.
ghost use Rattle.std.specs.Prelude.{map};
ghost use Rattle.station.specs.Promises.{Works, Worked};
ghost use Rattle.station.specs.Snap.{snap};
ghost use Rattle.station.specs.Working.{called};

use super::Station;
use crate::call::Call;
use kinds::kind::Kind;

impl<'p, 's, 't, K: Kind> Station<'p, 's, 't, K> {
    // Makes one call. Calls are values and no closures, since the promise speaks of every list of them.
    fn perform(&mut self, call: &Call<'_, K::Reading>)
        ensures { Works K.facts.readings.proper K.facts.passes (snap self.old) (called call.now) (snap self.new) }
    {
        match *call {
            Call::Feed(frame) => {
                let _ = self.feed(frame);
            }
            Call::Gap => self.gap(),
            Call::Look(position) => {
                let _ = self.look(position);
            }
            Call::LookBack { q, head } => {
                let _ = self.look_back(q, head);
            }
            Call::Recheck(position) => {
                let _ = self.recheck(position);
            }
        }
    }

    // Makes the calls in turn.
    pub fn work(&mut self, calls: &[Call<'_, K::Reading>])
        ensures { Worked K.facts.readings.proper K.facts.passes (snap self.old) (map called calls.now) (snap self.new) }
    {
        for call in calls {
            self.perform(call);
        }
    }
}
