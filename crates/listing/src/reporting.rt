// The reports at a frame.
ghost use Rattle.std.specs.Prelude.{◌≡◌, ℕ, List, [], ◌∷◌, OnOk, option_map, option_to_list};
ghost use Rattle.sheetfile.specs.Sheets.{Signature};
ghost use Rattle.station.specs.Answers.{in_figures, verdict_of};
ghost use Rattle.station.specs.Following.{Following};
ghost use Rattle.station.specs.Snap.{snap};
ghost use Rattle.listing.specs.Reports.{at_frame};
ghost use Rattle.listing.specs.Kept.{looked, report_of};
ghost use Rattle.listing.specs.Listed.{Lists};

use crate::report::Report;
use kinds::kind::Kind;
use lines::push_report;
use ring::Ring;
use station::refusal::Refusal;
use station::station::Station;
use station::verdict::Verdict;
use std::alloc::AllocError;

// The listing so far: its lines, and the latest of its reports.
#[derive(Drop)]
pub(crate) struct Listing<'a> {
    lines: Vec<u8>,
    latest: Ring<'a, Report>,
}

// What a look at the signature of this name reports: seen signatures alone.
fn reported(look: Result<Verdict, Refusal>, frame: u32, name: u16) -> Option<Report>
    ensures { option_to_list (option_map report_of result) ≡ looked frame name (in_figures verdict_of look) }
{
    match look {
        Ok(Verdict::Seen(placing)) => Some(Report {
            frame,
            name,
            placing,
        }),
        Ok(Verdict::Young | Verdict::Short(_)) | Err(_) => None,
    }
}

impl Listing<'_> {
    // Adds a report.
    fn put(&mut self, report: Report) -> Result<(), AllocError>
        ensures { OnOk result (Lists (report_of report ∷ []) self.old self.new) }
    {
        let heads = report.placing.heads();
        push_report(&mut self.lines, report.frame, report.name, heads)?;
        self.latest.push(report);
        Ok(())
    }

    // Adds the report of a look, if there is one.
    fn put_look(
        &mut self,
        look: Result<Verdict, Refusal>,
        frame: u32,
        name: u16,
    ) -> Result<(), AllocError>
        ensures { OnOk result (Lists (looked frame name (in_figures verdict_of look)) self.old self.new) }
    {
        match reported(look, frame, name) {
            Some(report) => self.put(report),
            None => Ok(()),
        }
    }

    // Adds the reports at a frame: each seen signature, in sheet order.
    pub(crate) fn put_frame<K: Kind>(
        &mut self,
        station: &Station<'_, '_, '_, K>,
        frame: u32,
    ) -> Result<(), AllocError>
        ensures { OnOk result ((N : ℕ) (sheet : List (Signature K.Test)) (run : List (List K.Reading)) → Following K.facts.readings.proper K.facts.passes N sheet run (snap station.now) → Lists (at_frame K.facts.passes N sheet frame run) self.old self.new) }
    {
        for (position, entry) in station.entries().iter().enumerate() {
            self.put_look(station.look(position), frame, entry.name)?;
        }
        Ok(())
    }
}
