// The laws of reports.
pub mod examples;
pub mod reports;
