//! Laws on runs that follow each other: making, writing and checking; judging windows and merging their reports.
//!
//! A law is a function with an empty body: its contract is the law, and a caller gets the law by calling it.

ghost use Rattle.drain_cli.specs.RoundTrip.{ReadIsJudged, WhatIsWrittenIsAccepted, WhatIsWrittenOnDemIsAccepted};

use drain_device::{ByteSink, ByteSource};
use drain_maker::laws::{made_is_accepted, made_on_dem_is_accepted};
use drain_union::laws::four_numbers;

/// What `make_set_given` made and `write_and_place` wrote into empty files is accepted by `check_on` with the same tiles,
/// sinks and spacing, unless memory runs out or a read fails: for any sources whose bytes are known, and any sinks whose written bytes are
/// known.
pub fn what_is_written_is_accepted<R: ByteSource, F: ByteSink>()
    ensures { WhatIsWrittenIsAccepted R.bytes_left F.ByteSink }
{
    made_is_accepted();
}

/// And what `make_dem_set` made is accepted with the same raster of elevations, sinks and spacing.
pub fn what_is_written_on_dem_is_accepted<R: ByteSource, F: ByteSink>()
    ensures { WhatIsWrittenOnDemIsAccepted R.bytes_left F.ByteSink }
{
    made_on_dem_is_accepted();
}

/// What `drain merge` reads of what `drain window` wrote is the report on the window that was judged. So what
/// `merge_and_print` promises of the windows of which it has the reports holds of these.
pub fn read_is_judged()
    ensures { ReadIsJudged }
{
    // The law that the rules look at the four no-data numbers of a report.
    four_numbers();
}
