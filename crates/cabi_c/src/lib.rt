// The archive for C and other languages: each export calls the function of its name in cabi, and promises the same.
#![tactic(auto)]

ghost use Rattle.cabi.specs.Coded.{VerdictCoded, AnswerCoded, FaultCoded};

// The verdict: a rule number for each event of the longest accepted beginning, and 0 for the others.
#[unsafe(no_mangle)]
pub extern "C" fn mz_verdict(file: &[u8], rules: &mut [u8]) -> u32
    ensures { VerdictCoded file.now rules.old result rules.new }
{
    cabi::mz_verdict(file, rules)
}

// The spy's knowledge: a mark for each row after the first n events.
#[unsafe(no_mangle)]
pub extern "C" fn mz_knowledge(file: &[u8], n: usize, marks: &mut [u8]) -> u32
    ensures { AnswerCoded file.now n marks.old result marks.new }
{
    cabi::mz_knowledge(file, n, marks)
}

// Where the part at fault lies.
#[unsafe(no_mangle)]
pub extern "C" fn mz_fault(file: &[u8]) -> u32
    ensures { FaultCoded file.now result }
{
    cabi::mz_fault(file)
}
