//! Laws of a mirror's reports.
ghost use Rattle.mirror_model.specs.ReportLaws.{ForksAreOneText, ForksAreReportedOnce, HeadsAreReportedOnce, MissingIsOneText, ServedIsSaidOnce, StatusIsOneText};

/// A view has one list of tree heads with their flags and one list of forks. It serves at most one size and root, and has
/// one text of each kind.
pub fn reports_law()
    ensures heads { HeadsAreReportedOnce }
    ensures forks { ForksAreReportedOnce }
    ensures served { ServedIsSaidOnce }
    ensures status_text { StatusIsOneText }
    ensures forks_text { ForksAreOneText }
    ensures missing_text { MissingIsOneText }
{}
