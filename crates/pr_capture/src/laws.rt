//! Laws of the readers, with nothing to run. A caller whose proof needs one calls the function.

ghost use Rattle.pr_capture.specs.CsvLaws.{CsvIsReadBack};
ghost use Rattle.pr_capture.specs.CsvSteps as csv;
ghost use Rattle.pr_capture.specs.Gathering.{GivenEdgesComeFirst};
ghost use Rattle.pr_capture.specs.VcdSteps as vcd;

/// A law: whatever follows the bytes that a reader has taken, the samples that it has given are the
/// first that the recording says.
pub fn given_samples_come_first()
    ensures dump { vcd.GivenSamplesComeFirst }
    ensures table { csv.GivenSamplesComeFirst }
{}

/// A law: whatever follows the samples that a detector has taken, the edges that it has given are
/// the first that the samples make.
pub fn given_edges_come_first()
    ensures { GivenEdgesComeFirst }
{}

/// A law: a table with a row for each of some samples, in the order of time, says these samples and
/// has no fault; of edges, each later than the one before and with other levels, it says these
/// edges. So it is with each separator and each unit of time.
pub fn csv_is_read_back()
    ensures { CsvIsReadBack }
{}
