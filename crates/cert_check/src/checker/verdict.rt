//! What the checker says of a certificate.

/// Where a check stands: 0 for the certificate's shape, a counted command's number, which counts from 1, or the number after
/// the last one for the end; and in the list of a global command the number of its command.
#[derive(Clone, Copy, Debug, PartialEq, Eq)]
pub struct Place {
    pub command: usize,
    pub inner: Option<usize>,
}

/// Whether the certificate is valid, and if it isn't, the place of the first check that fails.
#[derive(Clone, Copy, Debug, PartialEq, Eq)]
pub enum Verdict {
    Accepted,
    Refused(Place),
}
