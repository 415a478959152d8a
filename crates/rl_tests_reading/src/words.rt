// The words of both programs.
use rl_words::{CompileWords, RunWords, WordsFault, compile_words, run_words};
use std::test::Fail;

#[test]
fn the_forms_of_ragel_run(rt: HostRuntime) -> Result<(), Fail> {
    let words = ["--stack", "3", "one.rl", "--look=9", "one.script"];
    let Ok(RunWords::Replay(replay)) = run_words(rt.alloc(), words.as_slice()) else {
        return Err("no replay")?;
    };
    assert_eq!(rt; (replay.spec, replay.script), ("one.rl", "one.script"));
    let settings = replay.settings;
    assert_eq!(rt;
        (settings.stack, settings.look, settings.token_max),
        (3, 9, 65_536)
    );
    let words = ["one.rl", "--input", "main"];
    let stream = run_words(rt.alloc(), words.as_slice());
    assert!(rt; matches!(stream, Ok(RunWords::Stream("one.rl", "main"))));
    let words = ["--make", "3", "one.rl"];
    let make = run_words(rt.alloc(), words.as_slice());
    assert!(rt; matches!(make, Ok(RunWords::Make(3, "one.rl"))));
    let words = ["--upgrade", "y.c", "x.c"];
    let upgrade = run_words(rt.alloc(), words.as_slice());
    assert!(rt; matches!(upgrade, Ok(RunWords::Upgrade(None, "y.c", "x.c"))));
    let words = ["--stack", "03", "one.rl", "one.script"];
    let zero = run_words(rt.alloc(), words.as_slice());
    assert!(rt; matches!(zero, Err(WordsFault::Usage)));
    Ok(())
}

#[test]
fn the_form_of_ragel(rt: HostRuntime) -> Result<(), Fail> {
    let words = ["-CL", "-T", "0", "one.rl", "-oone.c"];
    let Ok(said) = compile_words(rt.alloc(), words.as_slice()) else {
        return Err("no form")?;
    };
    let CompileWords {
        spec,
        out,
        marked,
        certify,
    } = said;
    assert_eq!(rt;
        (spec, out, marked, certify),
        ("one.rl", Some("one.c"), false, false)
    );
    let words = ["-T", "1", "one.rl"];
    let driven = compile_words(rt.alloc(), words.as_slice());
    assert!(rt; matches!(driven, Err(WordsFault::Usage)));
    Ok(())
}
