// Replies of a table's stations (document 02, Six; document 01, "Replies"): a reply goes by the frame's DA, with the table's AP and clock.
ghost use Rattle.std.specs.Prelude.{◌≡◌};
ghost use Rattle.reply.specs.Replies.{Replied};
ghost use Rattle.table.specs.Replies.{tpc_reply_of, measurement_reply_of};

use crate::Table;
use answer::Refusal;
use element::tpc_report::TpcReport;
use measured_report::Readings;

impl Table {
    // The reply to a TPC Request, with the power and the margin that the caller has measured.
    pub fn reply_to_tpc_request(
        self,
        frame: &[u8],
        report: TpcReport,
        buffer: &mut [u8],
    ) -> Result<usize, Refusal>
        ensures { Replied (tpc_reply_of self report frame.now) buffer.old result buffer.new }
    {
        reply::to_tpc_request(frame, self.reader_of(frame), self.ap, report, buffer)
    }

    // The reply to the element at an index of a Measurement Request.
    pub fn reply_to_measurement_request(
        self,
        frame: &[u8],
        index: usize,
        readings: Readings,
        buffer: &mut [u8],
    ) -> Result<usize, Refusal>
        ensures { Replied (measurement_reply_of self index readings frame.now) buffer.old result buffer.new }
    {
        reply::to_measurement_request(
            frame,
            self.reader_of(frame),
            self.ap,
            self.clock,
            index,
            readings,
            buffer,
        )
    }
}
