// The line that a step prints.
use settings::Refusal;

// What a step did, which is done or refused.
pub type Line = script::Line<Result<(), Refusal>>;
