// What refusals are called in print.
use records::Error;

pub fn error_name(error: Error) -> &'static str {
    match error {
        Error::IncompleteData(_) => "IncompleteData",
        Error::InvalidOperandCount => "InvalidOperandCount",
        Error::UnsupportedInstruction => "UnsupportedInstruction",
        Error::UnsupportedOperand(_) => "UnsupportedOperand",
        Error::InvalidId(_) => "InvalidId",
        Error::InvalidResultId(_) => "InvalidResultId",
        Error::InvalidOperand(_) => "InvalidOperand",
        Error::InvalidImageExpression(_) => "InvalidImageExpression",
        Error::InvalidGlobalVar(_) => "InvalidGlobalVar",
        Error::InvalidImage(_) => "InvalidImage",
        Error::InvalidCoordinate(_) => "InvalidCoordinate",
        Error::InvalidVectorType(_) => "InvalidVectorType",
        Error::InvalidType(_) => "InvalidType",
        Error::MissingType(_) => "MissingType",
        Error::Full => "Full",
        Error::Mismatch => "Mismatch",
    }
}
