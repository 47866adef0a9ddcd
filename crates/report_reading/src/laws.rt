//! Laws of what is read. Each is the contract of a function that does nothing, over values that no code holds.

ghost use Rattle.std.specs.Prelude.{◌≡◌, All};
ghost use Rattle.report_doc.specs.declared.types.Report.{Report as SpecReport};
ghost use Rattle.report_doc.specs.Document.{text_of};
ghost use Rattle.report_doc.specs.Shape.{IsReport};
ghost use Rattle.report_reading.specs.Laws.{TwoReports};
ghost use Rattle.report_reading.specs.Reading.{IsKindName, IsReportOf};

/// A text is that of one report at most.
pub fn same_report()
    ghost of: { TwoReports }
    requires one { IsReportOf of.text of.one }
    requires other { IsReportOf of.text of.other }
    ensures { of.one ≡ of.other }
{}

/// The text of a report is that of the report: what is written is read back.
pub fn text_reads_back()
    ghost report: { SpecReport }
    requires report { IsReport report }
    requires kinds { All IsKindName report.kinds }
    ensures { IsReportOf (text_of report) report }
{}
