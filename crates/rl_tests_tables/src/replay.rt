use rl_replay::{
    LookUps, answer_by_itself, push_call_line, push_end_line, push_left_line, push_stop_line,
};
use rl_run::{Answer, Call, CallKind, GoalBase, Pick, Statement, StatementKind, Stop, Verdict};
use rl_types::{ActionId, EntryId};
use std::test::Fail;

// Actions `x` with one statement, conditions `c`, and entries `main`.
struct Names;

impl LookUps for Names {
    ghost use Rattle.std.specs.Prelude.{pos, cond, nat_eq, Some, None, false, true, [], codes};
    ghost use Rattle.rl_run.specs.declared.statements.StatementKind.TheVariants.{Goto};
    ghost use Rattle.rl_run.specs.declared.statements.GoalBase.TheVariants.{Unread};

    ghost machine = { λ _. record {
      width = 1;
      key_of = λ byte. record { 0 = pos byte };
      asked = λ state key. 0;
      find = λ state key hold. None;
      from = λ state. [];
      to = λ state. [];
      error = λ state. [];
      eof = λ state. [];
      token = λ state. [];
      kind = λ state. 0;
      final = λ state. false;
      home = λ state. 0;
      failed = 0;
      is_failed = λ state. false;
      entry = λ e. 1;
      statement = λ a n. cond (nat_eq n 1) (Some (record { kind = Goto; outer = true; entry = Some (record { 0 = 1 }); base = Unread; offset = pos 0 })) None;
      action_name = λ a. codes "x";
      condition_name = λ c. codes "c";
      entry_name = λ e. codes "main";
    } };

    fn called_name(&self, call: &Call) -> &[u8] {
        match call.kind {
            CallKind::Ask => b"c",
            CallKind::From
            | CallKind::Do
            | CallKind::Error
            | CallKind::To
            | CallKind::Token
            | CallKind::Eof => b"x",
        }
    }

    fn statement(&self, _action: ActionId, number: u32) -> Option<Statement> {
        if number == 1 {
            Some(Statement {
                kind: StatementKind::Goto,
                outer: true,
                entry: Some(EntryId(1)),
                base: GoalBase::Unread,
                offset: 0,
            })
        } else {
            None
        }
    }

    fn entry_name(&self, _entry: EntryId) -> &[u8] {
        b"main"
    }
}

#[test]
fn lines_are_printed(rt: HostRuntime) -> Result<(), Fail> {
    let alloc = rt.alloc();
    let mut out = Vec::new(alloc);
    let call = Call {
        kind: CallKind::Token,
        action: ActionId(1),
        at: 12,
        next: 13,
        key: None,
        ts: Some(10),
        te: Some(13),
    };
    let picks = [
        Some(Pick {
            statement: 1,
            goal: None,
        }),
        Some(Pick {
            statement: 2,
            goal: None,
        }),
        None,
        None,
    ];
    let own = Answer::Picks([picks[0], None, None, None]);
    assert_eq!(rt; answer_by_itself(&Names, &call), own);
    push_call_line(alloc, &mut out, &Names, b"s", &call, &Answer::Picks(picks))
        .ok()
        .ok_or("memory")?;
    push_stop_line(alloc, &mut out, b"s", &Stop::PastEnd, 13)
        .ok()
        .ok_or("memory")?;
    push_end_line(alloc, &mut out, b"s", Verdict::Error, 13)
        .ok()
        .ok_or("memory")?;
    push_left_line(alloc, &mut out, b"t", Verdict::Partial, 0)
        .ok()
        .ok_or("memory")?;
    let expected =
        b"s token x 12 10 13 goto main ?2\ns stop past-end 13\ns end error 13\nt left partial 0\n";
    assert!(rt; out.as_slice() == expected.as_slice());
    Ok(())
}
