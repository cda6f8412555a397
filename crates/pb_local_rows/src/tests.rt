use crate::recorder::Recorder;
use crate::starts::{behind, command, is_cause, is_ran, is_unreachable, job, setup, shell, texts};
use pb_outcome::job::Call;
use pb_outcome::outcome::Form;
use pb_runner::local::LocalRunner;
use pb_runner::runner::Runner;
use pb_value::text::Text;
use std::alloc::{AllocError, Global};
use std::fs;
use std::test::Fail;

#[test]
fn a_program_runs_without_input(rt: HostRuntime) -> Result<(), Fail> {
    let by_path = command(&rt, ["/bin/echo", "hi"].as_slice())?;
    assert!(rt; is_ran(&by_path, 0, "hi\n", ""));
    let by_name = command(&rt, ["echo", "a b", ""].as_slice())?;
    assert!(rt; is_ran(&by_name, 0, "a b \n", ""));
    let reader = shell(&rt, "echo a; echo b >&2; cat; exit 3")?;
    assert!(rt; is_ran(&reader, 3, "a\n", "b\n"));
    let empty = shell(&rt, "")?;
    assert!(rt; is_ran(&empty, 0, "", ""));
    Ok(())
}

#[test]
fn what_cannot_start_is_cause_1(rt: HostRuntime) -> Result<(), Fail> {
    assert!(rt; is_cause(&command(&rt, ["/no/such"].as_slice())?, 1));
    assert!(rt; is_cause(&command(&rt, ["no-such-program"].as_slice())?, 1));
    assert!(rt; is_cause(&command(&rt, [""].as_slice())?, 1));
    assert!(rt; is_cause(&command(&rt, ["echo", "a\0b"].as_slice())?, 1));
    assert!(rt; is_cause(&command(&rt, [].as_slice())?, 1));
    assert!(rt; is_cause(&behind(&rt, ["echo"].as_slice(), [].as_slice())?, 1));
    assert!(rt; is_cause(&setup(&rt, None, [].as_slice())?, 1));
    Ok(())
}

#[test]
fn causes_come_in_their_order(rt: HostRuntime) -> Result<(), Fail> {
    assert!(rt; is_cause(&shell(&rt, "kill -9 $$")?, 2));
    assert!(rt; is_cause(&shell(&rt, "head -c 1048577 /dev/zero; kill -9 $$")?, 2));
    assert!(rt; is_cause(&shell(&rt, "printf '\\377'")?, 3));
    assert!(rt; is_cause(&shell(&rt, "printf '\\377' >&2; exit 255")?, 3));
    assert!(rt; is_cause(&shell(&rt, "printf '\\377'; head -c 1048576 /dev/zero")?, 4));
    assert!(rt;
        is_cause(
            &shell(&rt, "printf '\\377'; head -c 1048577 /dev/zero >&2")?,
            4
        )
    );
    Ok(())
}

// A text of 1,048,576 bytes is whole.
#[test]
fn a_stream_has_one_mebibyte(rt: HostRuntime) -> Result<(), Fail> {
    assert!(rt; is_cause(&shell(&rt, "head -c 1048577 /dev/zero")?, 4));
    let fits = shell(
        &rt,
        "head -c 1048576 /dev/zero; head -c 1048576 /dev/zero >&2",
    )?;
    match fits.form() {
        Form::Ran { rc, out, err } => {
            assert_eq!(rt; *rc, 0);
            assert_eq!(rt; out.len(), 1048576);
            assert_eq!(rt; err.len(), 1048576);
        }
        _ => assert!(rt; false),
    }
    Ok(())
}

#[test]
fn two_full_streams_are_read_by_turns(rt: HostRuntime) -> Result<(), Fail> {
    let both = "head -c 67108864 /dev/zero & head -c 67108864 /dev/zero >&2; wait";
    assert!(rt; is_cause(&shell(&rt, both)?, 4));
    let first = "head -c 3000000 /dev/zero; head -c 3000000 /dev/zero >&2";
    assert!(rt; is_cause(&shell(&rt, first)?, 4));
    let second = "head -c 3000000 /dev/zero >&2; head -c 3000000 /dev/zero";
    assert!(rt; is_cause(&shell(&rt, second)?, 4));
    Ok(())
}

#[test]
fn a_program_that_closes_its_streams_is_waited_for(rt: HostRuntime) -> Result<(), Fail> {
    let outcome = shell(&rt, "echo a; exec >&- 2>&-; sleep 1; exit 7")?;
    assert!(rt; is_ran(&outcome, 7, "a\n", ""));
    Ok(())
}

#[test]
fn a_connector_comes_in_front(rt: HostRuntime) -> Result<(), Fail> {
    let echo = behind(&rt, ["echo", "to"].as_slice(), ["x", "y"].as_slice())?;
    assert!(rt; is_ran(&echo, 0, "to far x y\n", ""));
    let lost = "echo out; printf 'no route\\n\\r\\n' >&2; exit 255";
    let gone = behind(&rt, ["sh", "-c", lost].as_slice(), ["true"].as_slice())?;
    assert!(rt; is_unreachable(&gone, "no route"));
    let failed = behind(
        &rt,
        ["sh", "-c", "exit 254"].as_slice(),
        ["true"].as_slice(),
    )?;
    assert!(rt; is_ran(&failed, 254, "", ""));
    assert!(rt; is_ran(&shell(&rt, "exit 255")?, 255, "", ""));
    let noise = "printf '\\377'; exit 255";
    assert!(rt;
        is_cause(
            &behind(&rt, ["sh", "-c", noise].as_slice(), ["true"].as_slice())?,
            3
        )
    );
    Ok(())
}

#[test]
fn a_facts_program_gives_an_object(rt: HostRuntime) -> Result<(), Fail> {
    let path = Text::from_str(rt.alloc(), "/no/such")?;
    let text = "printf '{\"os\": \"linux\"}'";
    let found = setup(&rt, Some(path), ["sh", "-c", text].as_slice())?;
    assert!(rt; matches!(found.form(), Form::Module(_)));
    let path = Text::from_str(rt.alloc(), "/no/such")?;
    let list = setup(&rt, Some(path), ["sh", "-c", "echo [1]"].as_slice())?;
    assert!(rt; is_cause(&list, 5));
    let path = Text::from_str(rt.alloc(), "/no/such")?;
    let float = setup(
        &rt,
        Some(path),
        ["sh", "-c", "echo '{\"a\": 0.5}'"].as_slice(),
    )?;
    assert!(rt; is_cause(&float, 5));
    let path = Text::from_str(rt.alloc(), "true")?;
    assert!(rt; is_cause(&setup(&rt, Some(path), [].as_slice())?, 5));
    let path = Text::from_str(rt.alloc(), "false")?;
    assert!(rt; is_ran(&setup(&rt, Some(path), [].as_slice())?, 1, "", ""));
    Ok(())
}

// How many descriptors of this process are open.
fn open_files(rt: &HostRuntime) -> Result<usize, Fail> {
    let mut count = 0usize;
    for entry in fs::read_dir(rt, "/proc/self/fd")? {
        entry?;
        count = count.wrapping_add(1);
    }
    Ok(count)
}

#[test]
fn nothing_is_left_behind(rt: HostRuntime) -> Result<(), Fail> {
    let before = open_files(&rt)?;
    for _ in 0..2_000u32 {
        assert!(rt; is_ran(&command(&rt, ["true"].as_slice())?, 0, "", ""));
    }
    assert!(rt; is_cause(&command(&rt, ["/no/such"].as_slice())?, 1));
    assert_eq!(rt; open_files(&rt)?, before);
    let children = fs::read_to_string(&rt, "/proc/thread-self/children")?;
    assert_eq!(rt; children.as_str(), "");
    Ok(())
}

// The words of each program that was to be started, each behind a slash.
fn words_text(alloc: Global, recorder: Recorder) -> Result<String, AllocError> {
    let Recorder { past, waited: _ } = recorder;
    let mut text = String::new(alloc);
    for words in past {
        if let Some(command) = words.into_command() {
            text.push_str(command.get_program())?;
            for word in command.get_args() {
                text.push(' ')?;
                text.push_str(word)?;
            }
        }
        text.push('/')?;
    }
    Ok(text)
}

#[test]
fn one_launch_for_each_job(rt: HostRuntime) -> Result<(), Fail> {
    let alloc = rt.alloc();
    let launcher = Recorder {
        past: Vec::new(alloc),
        waited: 0,
    };
    let mut runner = LocalRunner {
        launcher,
        facts: None,
    };
    let words = texts(alloc, ["x", "y"].as_slice())?;
    let through = job(alloc, ["to"].as_slice(), Call::Command { words })?;
    assert!(rt; is_ran(&runner.run(alloc, &through), 0, "", ""));
    let gather = job(alloc, ["to"].as_slice(), Call::Setup)?;
    assert!(rt; is_cause(&runner.run(alloc, &gather), 1));
    runner.facts = Some(Text::from_str(alloc, "facts")?);
    assert!(rt; is_cause(&runner.run(alloc, &gather), 5));
    let here = job(
        alloc,
        [].as_slice(),
        Call::Shell {
            text: Text::from_str(alloc, "z")?,
        },
    )?;
    assert!(rt; is_ran(&runner.run(alloc, &here), 0, "", ""));
    let LocalRunner { launcher, facts: _ } = runner;
    assert_eq!(rt;
        words_text(alloc, launcher)?.as_str(),
        "to far x y/to far facts//bin/sh -c z/"
    );
    Ok(())
}

#[test]
fn waits_as_long_as_the_job_says(rt: HostRuntime) -> Result<(), Fail> {
    let alloc = rt.alloc();
    let launcher = Recorder {
        past: Vec::new(alloc),
        waited: 0,
    };
    let mut runner = LocalRunner {
        launcher,
        facts: None,
    };
    let words = texts(alloc, ["x"].as_slice())?;
    let mut tried = job(alloc, [].as_slice(), Call::Command { words })?;
    assert!(rt; is_ran(&runner.run(alloc, &tried), 0, "", ""));
    assert_eq!(rt; runner.launcher.waited, 0);
    tried.attempt = 2;
    tried.delay = 3600;
    assert!(rt; is_ran(&runner.run(alloc, &tried), 0, "", ""));
    assert_eq!(rt; runner.launcher.waited, 3600);
    Ok(())
}
