//! The numbers of faults.

use crate::same::same;
use fm_lex::Spot;
use fm_rules::{CheckFault, Fault, Why, refused};

const NUMBERS: &[(Why, u8)] = &[
    (Why::DoubleName, 5),
    (Why::NotTicks, 8),
    (Why::ForkInChoice, 9),
    (Why::TooDeep, 12),
    (Why::TooManyProcesses, 13),
    (Why::TooManySteps, 17),
];

#[test]
fn faults_have_their_numbers(rt: HostRuntime) {
    for (why, number) in NUMBERS {
        same(&rt, &why.number(), number);
    }
    let spot = Spot { line: 3, column: 7 };
    let why = Why::TooLong;
    assert!(rt; refused(Fault { why, spot }) == CheckFault::Refused { why, spot });
}
