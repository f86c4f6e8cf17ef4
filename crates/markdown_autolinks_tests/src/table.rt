//! Texts with their addresses: start, beginning of the name, end, and form (h: web, w: `www.`, m: mail). The expected
//! values are those of a second reading.
pub static ROWS: [(&str, &str); 75] = [
    (
        "http://a.b/c?d#e https://a.b ftp://a.b\u{a}",
        "0 0 16 h;17 17 28 h;29 29 38 h;",
    ),
    (
        "HTTPS://A.B http://localhost:80/x http://1.2.3.4 http://\u{fc}.de\u{a}",
        "0 0 11 h;12 12 33 h;34 34 48 h;49 49 61 h;",
    ),
    (
        "xhttp://a.b 1http://a.b (http://a.b) \u{22}http://a.b\u{22} x:http://a.b\u{a}",
        "13 13 23 h;25 25 35 h;38 38 48 h;52 52 62 h;",
    ),
    (
        "http:// http://-a.b http://a_b.c http://a.b_c http://a_x.b.c http://[::1]/ https://.\u{a}",
        "46 46 60 h;",
    ),
    (
        "www.a.b (www.a.b) *www.a.b* xwww.a.b /www.a.b WWW.a.b www.a_.b www.\u{a}",
        "0 0 7 w;9 9 16 w;19 19 26 w;",
    ),
    (
        "http://a.b. http://a.b/c, http://a.b?! http://a.b/c: http://a.b/c' \u{22}http://a.b/c\u{22}\u{a}",
        "0 0 10 h;12 12 24 h;26 26 36 h;39 39 51 h;53 53 65 h;68 68 80 h;",
    ),
    (
        "(http://a.b/c) http://a.b/(c) (http://a.b/(c)) http://a.b/c)) http://a.b/(c\u{a}",
        "1 1 13 h;15 15 29 h;31 31 45 h;47 47 59 h;62 62 75 h;",
    ),
    (
        "http://a.b/c&hl; http://a.b/c; http://a.b/?c=1&d=2;\u{a}",
        "0 0 12 h;17 17 29 h;31 31 50 h;",
    ),
    (
        "http://a.b/c&amp;d http://a.b/&copy;\u{a}",
        "0 0 18 h;19 19 30 h;",
    ),
    (
        "http://a.b<c http://a.b/c\u{a0}d http://a.b|c\u{a}",
        "0 0 10 h;13 13 25 h;29 29 41 h;",
    ),
    (
        "[http://a.b](u) [a http://b.c d](u) ![http://a.b](u) <http://a.b>\u{a}",
        "1 1 15 h;19 19 29 h;38 38 52 h;54 54 65 h;",
    ),
    ("[http://a.b [x] http://a.b\u{a}", "1 1 11 h;16 16 26 h;"),
    (
        "`http://a.b` <b>http://a.b</b> <http://a.b\u{a}",
        "1 1 12 h;16 16 26 h;32 32 42 h;",
    ),
    (
        "*http://a.b* **http://a.b** _http://a.b_ ~~http://a.b~~ http://a.b/c_d_e http://a.b/*c*\u{a}",
        "1 1 11 h;15 15 25 h;43 43 53 h;56 56 72 h;73 73 86 h;",
    ),
    (
        "http://a.b\u{5c}*c http://a.b/\u{5c}_c\u{a}",
        "0 0 13 h;14 14 28 h;",
    ),
    (
        "http://a.b/c\u{a}d http://a.b/c  \u{a}http://a.b\u{a}",
        "0 0 12 h;15 15 27 h;30 30 40 h;",
    ),
    (
        "    http://a.b\u{a}\u{a}```\u{a}http://a.b\u{a}```\u{a}\u{a}<div>\u{a}http://a.b\u{a}</div>\u{a}",
        "4 4 14 h;20 20 30 h;42 42 52 h;",
    ),
    (
        "a@b.c. a_b+c-d@e-f.g a@b a@b.c- a@b.c_ a@b..c .a@b.c a@b.c.d\u{a}",
        "0 0 5 m;7 7 20 m;46 46 52 m;53 53 60 m;",
    ),
    (
        "*a@b.c* _a@b.c_ <a@b.c> mailto:a@b.c [a@b.c](u) `a@b.c`\u{a}",
        "1 1 6 m;17 17 22 m;24 31 36 m;38 38 43 m;49 49 54 m;",
    ),
    (
        "a@b@c.d a@b.c@d.e @b.c a@b.1 a@b.c2\u{a}",
        "2 2 7 m;10 10 17 m;",
    ),
    (
        "|http://a.b|www.c.d|\u{a}|-|-|\u{a}|a@b.c|http://a.b\u{5c}|c|\u{a}",
        "1 1 20 h;28 28 33 m;34 34 48 h;",
    ),
    (
        "# http://a.b {#http://c.d}\u{a}\u{a}- [x] http://a.b\u{a}\u{a}> [!NOTE]\u{a}> http://a.b\u{a}",
        "2 2 12 h;15 15 26 h;34 34 44 h;58 58 68 h;",
    ),
    (
        "[^1]\u{a}\u{a}[^1]: http://a.b\u{a}\u{a}[a]: http://a.b\u{a}\u{a}[a] http://a.b\u{a}",
        "12 12 22 h;29 29 39 h;45 45 55 h;",
    ),
    (
        "---\u{a}k: http://a.b\u{a}---\u{a}\u{a}http://a.b\u{a}",
        "7 7 17 h;23 23 33 h;",
    ),
    (
        "\u{8acb}\u{770b} http://a.b/\u{5b57}\u{3002}\u{5b57} \u{e9}http://a.b\u{a}",
        "7 7 27 h;30 30 40 h;",
    ),
    (
        "http://a.b/c--d \u{22}http://a.b...\u{22} --a@b.c--\u{a}",
        "0 0 15 h;17 17 27 h;",
    ),
    (
        "http://a.b www.a.b a@b.c\u{a}",
        "0 0 10 h;11 11 18 w;19 19 24 m;",
    ),
    ("http://&amp;http://?www.", ""),
    ("+ \u{2003}", ""),
    ("(www.:&hl;@\u{2028}a_b.  ", ""),
    ("www.https://@..<&x", "0 0 13 w;"),
    ("@)) http://", ""),
    ("www.www.@", "0 0 9 w;"),
    ("http://\u{5b57}&amp;*_;~:", "0 0 10 h;"),
    (
        "www...&hl;-\u{3000}a@b.c\u{205e}&amp;mailto:",
        "14 14 19 m;",
    ),
    ("www.a_b.\u{3002}~&www.", ""),
    ("mailto:a.a.a.a.a.a.a.a.a.a.a.+< (", ""),
    ("\u{a}www._a@b.c", "1 1 11 m;"),
    ("hTTp://FTP://..\u{a0}\u{5b57}", "0 0 13 h;"),
    (";FTP://https://~", "1 1 15 h;"),
    (
        "http://_www.www.))!\u{5b57}a.a.a.a.a.a.a.a.a.a.a.",
        "8 8 43 w;",
    ),
    ("www.\u{202f}https://':http://&amp;/\u{3002}", ""),
    ("))*!www.?\u{1680}\u{22}https://\u{3000}", ""),
    ("a@b.c;\u{2003}@__'\u{e9}", "0 0 5 m;"),
    ("\u{2003}www.FTP://  &FTP://a_b.+  ", "3 3 13 w;"),
    ("http://mailto:\u{2028}-\u{202f}hTTp://&hl;", "0 0 13 h;"),
    ("&hl;!x", ""),
    ("http://..a@b.c", "7 7 14 m;"),
    ("*\u{2003}x@a\u{a}\u{205e}", ""),
    ("http://\u{e9}\u{22}", "0 0 9 h;"),
    ("\u{85},(\u{2028}  'https://@\u{205f}", ""),
    (";1www.\u{1680}a@b.c))?,\u{a0}", "9 9 14 m;"),
    ("?\u{2003}a@(&amp;https:// _", ""),
    ("a@b.chttp://a_b.\u{a0}", "0 0 9 m;"),
    ("http://a'\u{a};b.c\u{22}&amp; +", "0 0 8 h;"),
    ("https://\u{3002}&hl;(\u{205e}?&amp;.", "0 0 19 h;"),
    ("..\u{2003}&\u{2003}@@\u{2028}", ""),
    ("http://-@..b.c@...\u{a0}a_b.", ""),
    ("www.\u{1680}a\u{2003}<*)\u{22}\u{e9}", ""),
    ("http://ahttp://\u{e9}&hl;&amp;hTTp://a@b.c  /", "0 0 38 h;"),
    ("x@1b.c\u{1680}<:https://b.c", "0 0 6 m;11 11 22 h;"),
    ("www.))<\u{22}hTTp://\u{1680}@", ""),
    ("https://http://\u{2028}mailto:;FTP://", "0 0 15 h;"),
    (
        "http://hTTp://\u{2003}a.a.a.a.a.a.a.a.a.a.a.<hTTp://;\u{a}\u{2003}",
        "0 0 14 h;",
    ),
    ("-\u{205e}mailto:&+b.chTTp://&amp;(", ""),
    ("b.c\u{5b57}))_", ""),
    (
        "http://\u{5b57}\u{2028}a.a.a.a.a.a.a.a.a.a.a.?\u{205e}_\u{a0}\u{a}",
        "0 0 10 h;",
    ),
    ("http://a_b.FTP://&hl;hTTp://http://", "21 21 35 h;"),
    ("https://&amp;FTP://aa@b.c!  www.", "13 13 25 h;"),
    ("\u{3002}\u{205f}-\u{5b57}-x", ""),
    ("\u{205e}\u{2028}http://www.\u{3000}@", "6 6 16 h;"),
    (
        "http://?\u{205f}\u{3000}*\u{2003}a@b.c<\u{a}?",
        "18 18 23 m;",
    ),
    ("http://?hTTp://!.:", ""),
    ("http://www.;!\u{3000}\u{202f}!www.\u{85}", "0 0 10 h;"),
    ("www.\u{2003}www.https://", "7 7 19 w;"),
];
