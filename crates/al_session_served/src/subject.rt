// The subjects of reports.

/// The part of the last build that a report prints.
#[derive(Clone, Copy)]
pub enum ReportKind {
    /// The diagnostics.
    Diagnostics,
    /// The elaboration order.
    Order,
    /// The image.
    Image,
}
