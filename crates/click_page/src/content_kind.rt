//! The kinds of content of a response.

/// The kind of content of a response, which its content type names.
#[derive(Clone, Copy, Debug, PartialEq, Eq)]
pub enum ContentKind {
    Html,
    Svg,
    Json,
    Text,
    /// Prometheus' text format 0.0.4.
    Metrics,
}
