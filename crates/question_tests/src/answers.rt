//! Names, rules, reasons and verdicts in JSON, byte for byte.
ghost use Rattle.std.specs.Prelude.{◌≡◌, false};
ghost use Rattle.serde_json.specs.View.{view};
ghost use Rattle.serde_json.specs.Written.{has_float};

use answer_json::{
    explanation, explanation_object, json_line, match_line, name_value, reason_object,
    reasons_array, rule_object, verdict_line, verdict_object,
};
use names::{Permission, Perms, Verdict};
use rule_reader::read;
use serde_json::Value;
use std::alloc::Global;
use std::process::Abort;
use std::test::Fail;
use trace_report::Format;

const WEB: &[u8] =
    b"profile web {\n  /srv/** r,\n  /srv/log/* w,\n  deny \"/srv/log/*.old\" w,\n}\n";

// Why reading is allowed to a name, and why writing is denied.
const READ: &[u8] =
    b"{\"permission\":\"r\",\"rule\":{\"line\":2,\"number\":1,\"text\":\"\\\"/srv/**\\\" r,\"},\"verdict\":\"allowed\"}";

const WRITE: &[u8] =
    b"{\"permission\":\"w\",\"rule\":{\"line\":4,\"number\":3,\"text\":\"deny \\\"/srv/log/*.old\\\" w,\"},\"verdict\":\"denied\"}";

// The parts, one after the other.
pub(crate) fn joined(alloc: Global, parts: &[&[u8]]) -> Result<Vec<u8>, Fail> {
    let mut text = Vec::new(alloc);
    for part in parts {
        text.extend_from_slice(part)?;
    }
    Ok(text)
}

// Whether the value is this text.
fn expect(rt: &impl Abort, alloc: Global, value: &Value, text: &[u8]) -> Result<(), Fail>
    requires { has_float (view value.now) ≡ false }
{
    let line = json_line(alloc, value).ok().ok_or("line")?;
    assert!(rt; line.strip_suffix(b"\n") == Some(text));
    Ok(())
}

#[test]
fn names_as_values(rt: HostRuntime) -> Result<(), Fail> {
    let rows: [(&[u8], &[u8]); 4] = [
        (b"/etc/passwd", b"\"/etc/passwd\""),
        (b"/a \"b\"\n", b"\"/a \\\"b\\\"\\n\""),
        (b"/\xc3\xa9", b"\"/\xc3\xa9\""),
        (b"/\xe9", b"[47,233]"),
    ];
    for (name, text) in rows {
        let value = name_value(rt.alloc(), name).ok().ok_or("value")?;
        expect(&rt, rt.alloc(), &value, text)?;
    }
    Ok(())
}

#[test]
fn rules_and_reasons(rt: HostRuntime) -> Result<(), Fail> {
    let alloc = rt.alloc();
    let profile = read(alloc, WEB).ok().ok_or("profile")?;
    assert!(rt; profile.rules().len() == 3);
    let rule = rule_object(alloc, WEB, &profile, 3).ok().ok_or("rule")?;
    expect(
        &rt,
        alloc,
        &rule,
        b"{\"line\":4,\"number\":3,\"text\":\"deny \\\"/srv/log/*.old\\\" w,\"}",
    )?;
    let reason = reason_object(alloc, WEB, &profile, b"/srv/log/a", Permission::Lock);
    expect(
        &rt,
        alloc,
        &reason.ok().ok_or("reason")?,
        b"{\"permission\":\"k\",\"rule\":null,\"verdict\":\"no rule\"}",
    )?;
    let ask = Perms::from_letters(b"wr").ok_or("letters")?;
    let reasons = reasons_array(alloc, WEB, &profile, b"/srv/log/a.old", ask);
    let text = joined(alloc, &[b"[", READ, b",", WRITE, b"]"])?;
    expect(&rt, alloc, &reasons.ok().ok_or("reasons")?, &text)
}

#[test]
fn verdicts(rt: HostRuntime) -> Result<(), Fail> {
    let alloc = rt.alloc();
    let missing = Perms::from_letters(b"kr").ok_or("letters")?;
    let rows: [(Verdict, &[u8], &[u8]); 3] = [
        (
            Verdict::Allowed,
            b"allowed\n",
            b"{\"missing\":null,\"rule\":null,\"verdict\":\"allowed\"}",
        ),
        (
            Verdict::Denied { rule: 300 },
            b"denied by rule 300\n",
            b"{\"missing\":null,\"rule\":300,\"verdict\":\"denied\"}",
        ),
        (
            Verdict::NoRule { missing },
            b"no rule for rk\n",
            b"{\"missing\":\"rk\",\"rule\":null,\"verdict\":\"no rule\"}",
        ),
    ];
    for (verdict, text, json) in rows {
        let value = verdict_object(alloc, verdict).ok().ok_or("value")?;
        expect(&rt, alloc, &value, json)?;
        let line = verdict_line(alloc, Format::Text, verdict)
            .ok()
            .ok_or("text")?;
        assert!(rt; line.as_slice() == text);
        let line = verdict_line(alloc, Format::Json, verdict)
            .ok()
            .ok_or("json")?;
        assert!(rt; line.strip_suffix(b"\n") == Some(json));
    }
    Ok(())
}

#[test]
fn matches(rt: HostRuntime) -> Result<(), Fail> {
    let alloc = rt.alloc();
    let line = match_line(alloc, Verdict::Denied { rule: 3 }, 11, None);
    let line = line.ok().ok_or("line")?;
    let text =
        b"{\"lookups\":null,\"missing\":null,\"rule\":3,\"steps\":11,\"verdict\":\"denied\"}\n";
    assert!(rt; line.as_slice() == text.as_slice());
    let line = match_line(alloc, Verdict::Allowed, 0, Some(u128::MAX));
    let line = line.ok().ok_or("line")?;
    let text =
        b"{\"lookups\":340282366920938463463374607431768211455,\"missing\":null,\"rule\":null,\"steps\":0,\"verdict\":\"allowed\"}\n";
    assert!(rt; line.as_slice() == text.as_slice());
    Ok(())
}

#[test]
fn explanations(rt: HostRuntime) -> Result<(), Fail> {
    let alloc = rt.alloc();
    let profile = read(alloc, WEB).ok().ok_or("profile")?;
    let ask = Perms::from_letters(b"w").ok_or("letters")?;
    let name = b"/srv/log/a.old";
    let json = joined(
        alloc,
        &[
            b"{\"missing\":null,\"reasons\":[",
            WRITE,
            b"],\"rule\":3,\"verdict\":\"denied\"}",
        ],
    )?;
    let value = explanation_object(alloc, WEB, &profile, name, ask);
    expect(&rt, alloc, &value.ok().ok_or("value")?, &json)?;
    let lines = explanation(alloc, Format::Json, WEB, &profile, name, ask);
    assert!(rt; lines.ok().ok_or("json")?.strip_suffix(b"\n") == Some(json.as_slice()));
    let lines = explanation(alloc, Format::Text, WEB, &profile, name, ask);
    let text = b"denied by rule 3\nw: denied by rule 3, line 4: deny \"/srv/log/*.old\" w,\n";
    assert!(rt; lines.ok().ok_or("text")?.as_slice() == text.as_slice());
    Ok(())
}
