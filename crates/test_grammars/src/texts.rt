//! Which texts are JSON, and which are TOML.
use json_validity::is_json;
use std::process::Abort;
use std::test::Fail;
use toml_grammar::fault_of;

#[rattlefmt::skip]
const JSON: &[&str] = &[
    "null", " 1 ", "\"\\u00e9\"", "[]", "{}",
    "[1,[2,{}],{\"a\":[],\"b\":{\"c\":false}}]",
    "\n[\t1 ,\r2 ]\n",
];

#[rattlefmt::skip]
const NO_JSON: &[&str] = &[
    "", "[", "]", "[1", "[1}", "{]", "[1,]", "[,1]", "[1 2]", "{\"a\"}", "{\"a\":}", "{\"a\":1]", "{1:2}",
    "[[1]", "[1]]", "1,2", "[1]2", "{\"a\":[1}",
];

#[rattlefmt::skip]
const TOML: &[&str] = &[
    "",
    // The first example of TOML's page, with comments, headers and values of most kinds.
    "# This is a TOML document\n\ntitle = \"TOML Example\"\n\n[owner]\nname = \"Tom Preston-Werner\"\n\
     dob = 1979-05-27T07:32:00-08:00\n\n[database]\nenabled = true\nports = [ 8000, 8001, 8002 ]\n\
     data = [ [\"delta\", \"phi\"], [3.14] ]\ntemp_targets = { cpu = 79.5, case = 72.0 }\n\n[servers]\n\n\
     [servers.alpha]\nip = \"10.0.0.1\"\nrole = \"frontend\"\n\n[servers.beta]\nip = \"10.0.0.2\"\nrole = \"backend\"\n",
    // Keys and headers.
    "bare_key = 1\nbare-key = 2\n1234 = 3",
    "\"127.0.0.1\" = 1\n'quoted \"value\"' = 2\n\"\" = 3",
    "physical.color = 1\nsite.\"google.com\" = true\nfruit . flavor = 2\n3.14159 = 'pi'",
    "a.'b'.c . \"d\" .e= 1",
    "[a]\n[ d.e.f ]\n[ g . h . i ] # c\n[ j . \"x\" . 'l' ]\n",
    "[[products]]\n[[ a . \"b\" ]]\r\n\t[[c]] #",
    // Values.
    "a = 1979-05-27 07:32:00Z\nb = 1979-05-27 07:32:00.999\nc = 1979-05-27 # \nd = 07:32:00",
    "a = [1979-05-27, 1979-05-27 07:32:00, 1979-05-27\n , 1979-05-27 ]",
    "a = [ 1, 2 # c\n , # d\r\n 3,\n\n# e\n]",
    "a = [[],\n[{}], ]\nb = { c = [ # x\n], d.e = { f = 1 }, \"g\" = '' }",
    "s = \"\"\"\nRoses\r\nare \\\n  red\"\"\" # c\nt = '''it''s'''",
    "a=1#c\r\nb\t=\t[\t]\t\r\n",
];

// Ends the test where this is wrong of a text.
fn check(rt: &impl Abort, holds: bool, text: &str) {
    assert!(rt; holds, "{text:?}");
}

#[test]
fn texts_are_json(rt: HostRuntime) -> Result<(), Fail> {
    for text in JSON {
        check(&rt, is_json(rt.alloc(), text)?, text);
    }
    for text in NO_JSON {
        check(&rt, !is_json(rt.alloc(), text)?, text);
    }
    Ok(())
}

#[test]
fn texts_are_toml(rt: HostRuntime) -> Result<(), Fail> {
    for text in TOML {
        check(&rt, fault_of(rt.alloc(), text)?.is_none(), text);
    }
    Ok(())
}
