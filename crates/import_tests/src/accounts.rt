//! Accounts, values that override, and all profiles of a text.
use crate::texts::{CUPS, Ending, OF_CUPS, PASSWD, PLAIN, USERS};
use apparmor_rules::Subject;
use import_profile::ImportOptions;
use std::alloc::Global;
use trace_import::{AccountChoice, import, import_all};
use trace_report::Status;

fn imported(
    alloc: Global,
    options: ImportOptions<'_>,
    account: AccountChoice,
    text: &str,
) -> Ending {
    let (mut answers, mut faults) = (Vec::new(alloc), Vec::new(alloc));
    let mut input = text.as_bytes();
    let status = import(
        alloc,
        options,
        account,
        &mut input,
        &mut answers,
        &mut faults,
    );
    Ending {
        status,
        answers,
        faults,
    }
}

const CUPS_PROFILE: &str = "profile \"cups\" {
  \"/etc/passwd\" r,
  \"/{home,srv}/x\" rw,
  \"/proc/*/attr/apparmor/\" r,
  \"/sys/module/apparmor/parameters/enabled\" r,
  \"/proc/[0-9]*/attr/{,apparmor/}current\" w,
}
";

/// Each change with its line of the text, and sums; all that is reported with its own text; or nothing.
#[test]
fn accounts_that_are_chosen(rt: HostRuntime) {
    let changes = "7:3: owner: wider for others: owner @{H}/x rw,
8:3: hat: wider: ^hat {
12:3: child: wider: profile child {
rules 5; reported: 0 exact, 2 wider, 0 narrower, 1 wider for others, 0 narrower for others
";
    let all = "7:3: owner: wider for others: owner
8:3: hat: wider: ^hat { /h r, }
12:3: child: wider: profile child { deny /c w, }
";
    for (account, told) in [
        (AccountChoice::Changes, changes),
        (AccountChoice::All, all),
        (AccountChoice::Nothing, ""),
    ] {
        let ending = imported(rt.alloc(), OF_CUPS, account, CUPS);
        assert!(rt; ending.is(Status::Done, CUPS_PROFILE, told), "{account:?}");
    }
}

/// Where nothing is reported there are no sums.
#[test]
fn accounts_without_sums(rt: HostRuntime) {
    let profile = "profile \"passwd\" {\n  \"/etc/passwd\" r,\n}\n";
    let ending = imported(rt.alloc(), PLAIN, AccountChoice::Changes, PASSWD);
    assert!(rt; ending.is(Status::Done, profile, ""));
}

/// A value that is given precedes the text, which may not declare its variable again; or it is all there is.
#[test]
fn values_that_override(rt: HostRuntime) {
    let preceding = ImportOptions {
        defines: &USERS,
        ..OF_CUPS
    };
    let ending = imported(rt.alloc(), preceding, AccountChoice::Nothing, CUPS);
    assert!(rt; ending.is(Status::Refused, "", "refused: import 7 at 1:1\n"));
    let overriding = ImportOptions {
        overrides: true,
        ..preceding
    };
    let ending = imported(rt.alloc(), overriding, AccountChoice::Nothing, CUPS);
    let with_users = "  \"/users/x\" rw,\n";
    assert!(rt; ending.status == Status::Done);
    assert!(rt;
        ending
            .answers
            .windows(with_users.len())
            .any(|part| part == with_users.as_bytes())
    );
}

/// Children and hats are profiles, too, and each has its account after its name.
#[test]
fn all_profiles_of_a_text(rt: HostRuntime) {
    let alloc = rt.alloc();
    let others = ImportOptions {
        subject: Subject::Other,
        ..PLAIN
    };
    let (mut answers, mut faults) = (Vec::new(alloc), Vec::new(alloc));
    let mut input = CUPS.as_bytes();
    let status = import_all(
        alloc,
        others,
        AccountChoice::All,
        &mut input,
        &mut answers,
        &mut faults,
    );
    let ending = Ending {
        status,
        answers,
        faults,
    };
    let policies = "policy
profile \"cups\" {
  \"/etc/passwd\" r,
}
.
policy
profile \"cups//hat\" {
  \"/h\" r,
}
.
policy
profile \"cups//child\" {
  deny \"/c\" w,
}
.
";
    let accounts = "profile cups:
7:3: owner: narrower for owners: owner @{H}/x rw,
8:3: hat: narrower for owners: ^hat { /h r, }
12:3: child: narrower for owners: profile child { deny /c w, }
profile cups//hat:
4:1: parent: exact: profile cups { /etc/passwd r, ##included <abstractions/base> owner @{..
8:3: implied: narrower for owners: ^
";
    assert!(rt; ending.status == Status::Done);
    assert!(rt; ending.answers.as_slice() == policies.as_bytes());
    assert!(rt; ending.faults.starts_with(&accounts.as_bytes()[..150]));
}
